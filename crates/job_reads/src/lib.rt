// Laws of the requests: an accepted case's requests read only cells of the case; a refusal has one
// of 01's numbers, 1 to 19 for a job, 30 to 44 for a request, or 02's 45 for a job. They stand in
// proofs/.
#![tactic(auto)]
