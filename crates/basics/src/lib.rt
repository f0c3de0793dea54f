#![tactic(auto)]

// Definitions and laws about numbers, tests and lists that know nothing of circuits. No function.
