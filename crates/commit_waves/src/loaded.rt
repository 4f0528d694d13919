// What is committed.
use dsl_load::LoadParts;
use site_base::{Blob, Texts};

/// What was loaded: the names of the files, of which places have the indexes, what the files registered, and the bytes of the file
/// that `SiteZone` names, if it names one.
#[derive(Drop)]
pub struct Loaded {
    pub files: Texts,
    pub parts: LoadParts,
    pub zone: Option<Blob>,
}
