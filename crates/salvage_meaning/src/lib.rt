#![tactic(auto)]

// The salvage of a damaged capture: what it is (specs/Salvage, 02's Wish 13) and what holds of it whoever salvages. There is no code here: `salvage::record`
// and `salvage` do it, record by record and byte by byte.
