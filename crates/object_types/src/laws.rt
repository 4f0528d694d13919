// What it means that an object has no fault.
ghost use Rattle.object_types.specs.Lawful.{HaveNone, AreLawful};

/// An object of a type that isn't inert has no fault exactly if it is lawful: each attribute that stands there is
/// good, and each that its type needs is set.
pub fn objects_without_faults_are_lawful()
    ensures none { HaveNone }
    ensures only { AreLawful }
{}
