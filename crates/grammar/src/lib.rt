// The grammar of typed searches as functions (specs/), and that they say what the productions of model/specs say (proofs/). No code.

#![tactic(auto)]
