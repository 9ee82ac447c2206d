// No code: specs/Order.antt says which of two words comes first, and specs/Promise.antt what is promised of it.
#![tactic(auto)]
