// Whether objects stand in files.
ghost use Rattle.std.specs.Prelude.{◌<◌, All, IsTrue, length};

use site_base::Texts;
use site_model::Object;

/// Whether the place of each object is in one of the files.
pub fn are_placed(objects: &[Object], files: &Texts) -> bool
    ensures { IsTrue result → All (λ o. o.place.file < length files.now) objects.now }
{
    for object in objects {
        if object.place.file as usize >= files.len() {
            return false;
        }
    }
    true
}
