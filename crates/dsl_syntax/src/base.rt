// Where assignments begin.
use site_base::Text;

/// The value in which the target of an assignment begins.
#[derive(Drop)]
pub enum Base {
    Name(Text),
    This,
    Globals,
}
