// No code: proofs/Kit.antt has what nearly every proof names of the kit's libraries.
#![tactic(auto)]
