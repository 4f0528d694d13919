// The columns of queries.
ghost use Rattle.std.specs.Prelude.{◌≡◌};
ghost use Rattle.site_query.specs.Names.{column_name, column_named as named, spelled_among};

/// What a query can ask of a host or a service.
#[derive(Clone, Copy)]
pub enum Column {
    /// `name`: the full name.
    Name,
    /// `state`: of a service 0 for OK, 1 for Warning, 2 for Critical and 3 for Unknown, of a host 0 for up and 1 for down.
    State,
    /// `hard`: 1 where the state is HARD (Icinga 2 documentation, Monitoring Basics, "Hard and Soft States"), else 0.
    Hard,
    /// `has_result`: 1 once a result came, else 0.
    HasResult,
    /// `acknowledged`: 1 while a problem is acknowledged (Icinga 2 documentation, Monitoring Basics, "Acknowledgements"), else 0.
    Acknowledged,
    /// `flapping`: 1 while the state changes too often (Icinga 2 documentation, Monitoring Basics, "Flapping"), else 0.
    Flapping,
    /// `attempt`: the check attempt, from 1.
    Attempt,
    /// `change`: when it became a HARD problem, or changed the state of one, in seconds from 1970; 0 if it never did.
    Change,
    /// `count`: the number of its entries.
    Count,
    /// `downtime`: the number of the downtime in effect, which is that of the entry that began it; 0 if none is.
    Downtime,
}

/// All of them.
static COLUMNS: [Column; 10] = [
    Column::Name,
    Column::State,
    Column::Hard,
    Column::HasResult,
    Column::Acknowledged,
    Column::Flapping,
    Column::Attempt,
    Column::Change,
    Column::Count,
    Column::Downtime,
];

impl Column {
    fn name(self) -> &'static str
        ensures { result.now ≡ column_name self }
    {
        match self {
            Column::Name => "name",
            Column::State => "state",
            Column::Hard => "hard",
            Column::HasResult => "has_result",
            Column::Acknowledged => "acknowledged",
            Column::Flapping => "flapping",
            Column::Attempt => "attempt",
            Column::Change => "change",
            Column::Count => "count",
            Column::Downtime => "downtime",
        }
    }
}

/// The column of this name.
#[tactic(auto, unfolding(crate::specs::Names::column_named))]
pub(crate) fn column_named(name: &str) -> Option<Column>
    ensures { result ≡ named name.now }
{
    column_among(&COLUMNS, name)
}

/// The first of these columns that has this name.
fn column_among(columns: &[Column], name: &str) -> Option<Column>
    ensures { result ≡ spelled_among column_name columns.now name.now }
{
    for column in columns {
        if name == column.name() {
            return Some(*column);
        }
    }
    None
}
