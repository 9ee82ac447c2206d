// No code: least costs over the cosets of a layer, and the first of the cheapest words. specs/Trellis.antt has the definitions, proofs/ their laws.
#![tactic(auto)]
