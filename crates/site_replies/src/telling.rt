// Where remarks are told.
ghost use Rattle.std.specs.Prelude.{◌≡◌, List, Option, [], ◌∷◌, OnOk};
ghost use Rattle.site_replies.specs.Remarks.{with_remarks};
ghost use Rattle.site_replies.specs.declared.remarks.Remark.{Remark as PlainRemark};

use crate::remarks::Remark;
use site_base::OutOfMemory;

/// Where a run tells what is remarked of its site. Whether anybody hears it doesn't change the run.
pub trait Remarks {
    /// What was told, if that is known.
    ghost remarked: { Self → Option (List PlainRemark) };

    /// Tells a remark.
    ///
    /// # Errors
    ///
    /// `OutOfMemory` if there is too little memory to keep it. Nothing is said then of what was told.
    fn tell(&mut self, remark: &Remark) -> Result<(), OutOfMemory>
        ensures { OnOk result (remarked self.new ≡ with_remarks (remarked self.old) (remark.now ∷ [])) };

    /// Hears how many checks of the site may be outstanding at once. Nothing of it is a remark.
    fn limit(&mut self, checks: u32)
        ensures { remarked self.new ≡ remarked self.old };
}

/// Tells these remarks, in their order.
pub fn tell_all<N: Remarks>(remarks: &[Remark], to: &mut N) -> Result<(), OutOfMemory>
    ensures { OnOk result (N.remarked to.new ≡ with_remarks (N.remarked to.old) remarks.now) }
{
    for remark in remarks {
        to.tell(remark)?;
    }
    Ok(())
}
