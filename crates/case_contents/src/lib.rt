// What a case file holds, the file that holds it, and what a writer of it refuses: definitions, and
// the laws that each gives the other.
#![tactic(auto)]
