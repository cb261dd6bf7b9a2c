//! What is promised of a file that is written anew for another: where its parts stand, what is least in it, that it holds nothing else, and
//! what its certificate says. The definitions are in `specs`, with laws of them; there is nothing to run here.
#![tactic(auto)]
