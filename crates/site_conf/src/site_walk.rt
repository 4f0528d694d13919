// What a walk without a fault gives.
use dsl_syntax::File;
use site_base::Texts;

/// The files of a site in the order in which they were met, each with its tree, the parts of the library among them, and the order of the walk.
///
/// The order is the root's index and then the root's part. The part of a file begins with its length, so that what a
/// `return` leaves out is passed over unread. Then it goes through the inclusions in the file: for each it has the number of
/// files that the inclusion names, and for each of these its index and then its own part.
#[derive(Drop)]
pub struct Walk {
    pub names: Texts,
    /// For each file, whether it is a part of the built-in library.
    pub library: Vec<bool>,
    pub trees: Vec<File>,
    pub order: Vec<u32>,
}
