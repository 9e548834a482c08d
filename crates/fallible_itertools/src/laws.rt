//! The equations of the list words of some adapters, and the headline of a nest. What else is known of the list words is said by lemmas.

pub use fallible_itertools_adapters::laws::nests::law_nest_of_six;
pub use fallible_itertools_adapters::laws::{
    law_coalesced, law_deduped, law_deduped_by, law_deduped_by_key, law_positioned,
};
