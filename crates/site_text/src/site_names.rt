// The names of what a site has.
ghost use Rattle.std.specs.Prelude.{◌≡◌, ◌<◌, ◌++◌, length, OnOk};
ghost use Rattle.site_model.specs.PlainSite.{site_view, full_names};
ghost use Rattle.site_text.specs.Entries.{name_text, depend_names, notify_names, user_names};

use crate::line::Line;
use site_base::OutOfMemory;
use site_model::Site;

/// Adds the quoted full name of a checkable.
pub fn push_checkable(out: &mut Line, site: &Site, checkable: u32) -> Result<(), OutOfMemory>
    requires { checkable < length site.now.checkables }
    ensures { OnOk result (out.new ≡ out.old ++ name_text (full_names (site_view site.now)) checkable) }
{
    let spec = &site.checkables.as_slice()[checkable as usize];
    out.push_quoted(spec.name.as_str())
}

/// Adds the quoted name of a dependency.
pub fn push_depend(out: &mut Line, site: &Site, depend: u32) -> Result<(), OutOfMemory>
    requires { depend < length site.now.depends }
    ensures { OnOk result (out.new ≡ out.old ++ name_text (depend_names (site_view site.now)) depend) }
{
    let spec = &site.depends.as_slice()[depend as usize];
    out.push_quoted(spec.name.as_str())
}

/// Adds the quoted name of a notification.
pub fn push_notification(out: &mut Line, site: &Site, notification: u32) -> Result<(), OutOfMemory>
    requires { notification < length site.now.notifies }
    ensures { OnOk result (out.new ≡ out.old ++ name_text (notify_names (site_view site.now)) notification) }
{
    let spec = &site.notifies.as_slice()[notification as usize];
    out.push_quoted(spec.name.as_str())
}

/// Adds the quoted name of a user.
pub fn push_user(out: &mut Line, site: &Site, user: u32) -> Result<(), OutOfMemory>
    requires { user < length site.now.users }
    ensures { OnOk result (out.new ≡ out.old ++ name_text (user_names (site_view site.now)) user) }
{
    let spec = &site.users.as_slice()[user as usize];
    out.push_quoted(spec.name.as_str())
}
