// The objects and globals of a row, and the objects that stand before those.
use case_objects::object_of;
use case_rows::bytes_of;
use case_trees::tree_of;
use site_base::{Blob, OutOfMemory, Row, Text, Tree, copy_tree};
use site_model::Object;
use site_phases::Globals;
use std::alloc::Global;

/// The objects that stand before those of a row.
const BEFORE: &str = r#"{
    "1 CheckCommand c" = {}, "2 CheckCommand d" = {}, "3 NotificationCommand n" = {}, "4 EventCommand e" = {},
    "5 TimePeriod t" = {}, "6 TimePeriod w" = {ranges = {monday = "09:00-17:00"}},
    "7 UserGroup g" = {}, "8 UserGroup f" = {}, "9 User u" = {groups = ["g"]}, "10 User v" = {groups = ["f", "g"]},
    "11 Host h" = {check_command = "c"}, "12 Host k" = {check_command = "c"},
    "13 Service h!s" = {check_command = "c", host_name = "h"}
}"#;

/// How many users stand before those of a row.
pub(crate) const USERS_BEFORE: usize = 2;

/// How many periods stand before those of a row.
pub(crate) const PERIODS_BEFORE: usize = 2;

/// Whether the host or the service of this name stands before those of a row.
pub(crate) fn is_before(checkable: &str) -> bool {
    matches!(checkable, "h" | "k" | "h!s")
}

/// The objects of a row, in the order in which they were made, and its globals.
#[derive(Drop)]
pub(crate) struct Given {
    pub(crate) objects: Row<Object>,
    pub(crate) globals: Globals,
}

impl Given {
    pub(crate) fn new(alloc: Global) -> Given {
        Given {
            objects: Row::new(alloc),
            globals: Globals {
                max_checks: None,
                site_zone: None,
                zone_file: None,
                vars: Tree::Null,
            },
        }
    }

    /// Adds what a row writes, behind the objects that stand before it unless it stands alone. Answers whether the row is a dictionary.
    pub(crate) fn take(
        &mut self,
        alloc: Global,
        is_alone: bool,
        row: &str,
    ) -> Result<bool, OutOfMemory> {
        if !is_alone {
            self.add_all(alloc, BEFORE)?;
        }
        self.add_all(alloc, row)
    }

    /// Adds what a dictionary writes. Answers whether it is one.
    fn add_all(&mut self, alloc: Global, text: &str) -> Result<bool, OutOfMemory> {
        match &tree_of(alloc, text)? {
            Some(Tree::Dict(pairs)) => {
                self.add_pairs(alloc, pairs)?;
                Ok(true)
            }
            _ => Ok(false),
        }
    }

    fn add_pairs(&mut self, alloc: Global, pairs: &[(Text, Tree)]) -> Result<(), OutOfMemory> {
        for (head, tree) in pairs {
            self.add(alloc, head.as_str(), tree)?;
        }
        Ok(())
    }

    /// Adds a global under its name, or an object under its head.
    fn add(&mut self, alloc: Global, head: &str, tree: &Tree) -> Result<(), OutOfMemory> {
        if head == "ZoneFile" {
            self.globals.zone_file = file_in(alloc, tree)?;
            return Ok(());
        }
        let tree = copy_tree(alloc, tree)?;
        match head {
            "MaxConcurrentChecks" => self.globals.max_checks = Some(tree),
            "SiteZone" => self.globals.site_zone = Some(tree),
            "Vars" => self.globals.vars = tree,
            _ => return self.objects.push(object_of(alloc, head, tree)?),
        }
        Ok(())
    }
}

/// The bytes that a string of hexadecimal digits writes.
fn file_in(alloc: Global, tree: &Tree) -> Result<Option<Blob>, OutOfMemory> {
    match tree {
        Tree::Str(text) => Ok(Some(bytes_of(alloc, text.as_str())?)),
        _ => Ok(None),
    }
}
