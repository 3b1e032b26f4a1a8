// Demands: what the rules say of demands 1 to 3, of the intake, of the census and of another maker's bridge. There is no code here:
// specs/Promises has the statements, specs/Soundings the worked cases, proofs/ the proofs, gathered in proofs/Kept. Each crate's
// contracts make them statements about its functions.
#![tactic(auto)]
