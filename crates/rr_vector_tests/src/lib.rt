//! Tests of `rr_store` on files that the program wrote once (`rr_vectors`): what they told then they tell now.
#![tactic(auto)]

#[cfg(test)]
mod kept_files;
