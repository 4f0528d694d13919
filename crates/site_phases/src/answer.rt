// What a commit comes to.
use site_base::{Diags, Texts};
use site_model::Site;

/// What a commit comes to: a site, or what is wrong with the configuration.
#[derive(Drop)]
pub enum Answer {
    Site(Site),
    Diags {
        /// The names of the files that the places speak of.
        files: Texts,
        list: Diags,
    },
}
