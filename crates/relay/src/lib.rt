// The relay box of document 02, request 107: definitions and theory only, see specs/ and proofs/. The call stands in `relay_calls`.
#![tactic(auto)]
