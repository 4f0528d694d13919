// What it means that nothing is told.
ghost use Rattle.conf_check.specs.Standing.{AreApart, AllStand};

/// Objects without duplicates have different full names in each type, and of objects without missing names each name is that
/// of one of them.
pub fn objects_without_faults_stand()
    ensures apart { AreApart }
    ensures there { AllStand }
{}
