// What a load comes to.
use commit_waves::Loaded;
use site_base::{Diags, Texts};

/// What the files of a site come to: a load, or what is wrong with them.
#[derive(Drop)]
pub enum LoadAnswer {
    Loaded(Loaded),
    Diags {
        /// The names of the files that the places speak of.
        files: Texts,
        list: Diags,
    },
}
