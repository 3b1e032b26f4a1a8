// Laws: of cutting a reply and of turning a text, over all lengths. There is no code here: specs/Laws has the statements, proofs/Laws
// the proofs, which the crates above cite.
#![tactic(auto)]
