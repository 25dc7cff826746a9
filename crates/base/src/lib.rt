#![tactic(auto)]

// General notions and their laws: tests below n, counting, digits, lists. No document and no function:
// the definitions stand in specs/, the laws in proofs/.
