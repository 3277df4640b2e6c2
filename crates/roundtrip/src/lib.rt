// The round trip: what a fresh writer wrote and flushed is read back, by a fresh cursor, from the written bytes alone. The statement
// stands in specs/Mixed.antt, its proof in proofs/MixedTrip.antt.
#![tactic(auto)]
