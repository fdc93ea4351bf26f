// What a formula line means, and how its rows are worked out.
// specs/ has both: when a state and a valuation satisfy a line and what accounts for it; and the rows, witnesses and
// rounds of a check, or what there was no room for. proofs/ shows that what is worked out is faithful to what is meant.
#![tactic(auto)]

// Why a working out stops before its end.
pub mod shortage;

// What is proved of every working out, each as the contract of a function that does nothing.
pub mod promises;
