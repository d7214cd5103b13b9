// The grammar of the NFC Forum documents, with no word of reading: blocks, records, messages (specs/). The theorems say that what is
// read is exactly what the grammar has (proofs/). No code is needed for them.

#![tactic(auto)]
