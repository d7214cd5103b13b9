// Well-formed UTF-8, after table 3-7 of the Unicode Standard: definitions and their laws. The code is in `characters` and `texts`.

#![tactic(auto)]
