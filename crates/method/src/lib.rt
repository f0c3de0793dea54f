#![tactic(auto)]

// The two-phase method on lists of circuits: definitions and theorems. No function.
