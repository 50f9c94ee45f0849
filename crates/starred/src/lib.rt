// Document 01's starred examples of tables, frames and boards, as one statement over one list, and its heats, from open to show, with
// heats of three words a record beside them: theory only, see specs/ and proofs/.
#![tactic(auto)]
