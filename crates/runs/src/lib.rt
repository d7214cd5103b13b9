// Theorems: a session that is driven asks for exactly the transfers of the definition, and answers as it does. No code: the steps are defined in `stages`.

#![tactic(auto)]
