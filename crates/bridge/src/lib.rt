// No code: from the least costs of layers to the least costs of codewords. proofs/ shows, for any code that is given by columns and tuples of cosets, that
// the least sum of the layers' tables over the tuples is the least cost of a codeword, with a bit held or not, and which codeword comes first.
#![tactic(auto)]
