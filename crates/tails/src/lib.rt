// No code: the cosets of a layer by their tails, and the tuples of cosets that codewords have, in the order in which the walk visits them.
#![tactic(auto)]
