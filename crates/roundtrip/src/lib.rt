// Theorems over building and reading together. No code: what is built and read is in `image`, `blocks`, `records` and `walk`.

#![tactic(auto)]
