// Sums, differences and products of numbers: definitions and laws alone. `integer_arithmetic` has the code.
#![tactic(auto)]
