// The built-in library.
ghost use Rattle.std.specs.Prelude.{◌≡◌, [], if◌then◌else◌, option_map};
ghost use Rattle.conf_sources.specs.Library.{library_text as text_of, plugins_text, is_empty_part};

/// The text of the part of the built-in library with this name: the command that always succeeds, and
/// those of the usual check programs, whose folder `PluginDir` the site itself names. Some parts are
/// empty.
pub(crate) fn library_text(name: &str) -> Option<&'static str>
    ensures { option_map (λ t. t.now) result ≡ text_of name.now }
{
    match name {
        "itl" => Some(ITL),
        "plugins" => Some(plugins()),
        _ => empty_text(name),
    }
}

/// The commands of the usual check programs.
#[tactic(auto, unfolding(crate::specs::Library::plugins_text))]
fn plugins() -> &'static str
    ensures { result.now ≡ plugins_text }
{
    PLUGINS
}

/// The text of a part of the library that is empty.
fn empty_text(name: &str) -> Option<&'static str>
    ensures { option_map (λ t. t.now) result ≡ (if is_empty_part name.now then Some [] else None) }
{
    match name {
        "plugins-contrib" => Some(""),
        "manubulon" => Some(""),
        "windows-plugins" => Some(""),
        "nscp" => Some(""),
        _ => None,
    }
}

const ITL: &str = "object CheckCommand \"icinga\" { command = [ \"true\" ] }\n";

/// One object a line.
const PLUGINS: &str = "\
object CheckCommand \"hostalive\" { command = [ PluginDir + \"/check_ping\" ]; arguments = { \"-H\" = \"$address$\", \"-w\" = \"$ping_warn$\", \"-c\" = \"$ping_crit$\" } }\n\
object CheckCommand \"ping4\" { command = [ PluginDir + \"/check_ping\" ]; arguments = { \"-H\" = \"$address$\", \"-w\" = \"$ping_warn$\", \"-c\" = \"$ping_crit$\" } }\n\
object CheckCommand \"ping6\" { command = [ PluginDir + \"/check_ping\" ]; arguments = { \"-H\" = \"$address6$\", \"-w\" = \"$ping_warn$\", \"-c\" = \"$ping_crit$\" } }\n\
object CheckCommand \"http\" { command = [ PluginDir + \"/check_http\" ]; arguments = { \"-I\" = \"$address$\", \"-u\" = \"$http_uri$\" } }\n\
object CheckCommand \"ssh\" { command = [ PluginDir + \"/check_ssh\" ]; arguments = { \"-H\" = \"$address$\" } }\n\
object CheckCommand \"disk\" { command = [ PluginDir + \"/check_disk\" ]; arguments = { \"-p\" = \"$disk_partitions$\" } }\n\
object CheckCommand \"load\" { command = [ PluginDir + \"/check_load\" ]; arguments = { } }\n\
object CheckCommand \"procs\" { command = [ PluginDir + \"/check_procs\" ]; arguments = { } }\n\
object CheckCommand \"swap\" { command = [ PluginDir + \"/check_swap\" ]; arguments = { } }\n\
object CheckCommand \"users\" { command = [ PluginDir + \"/check_users\" ]; arguments = { } }\n\
object CheckCommand \"apt\" { command = [ PluginDir + \"/check_apt\" ]; arguments = { } }\n\
object CheckCommand \"dummy\" { command = [ PluginDir + \"/check_dummy\" ]; arguments = { \"state\" = { value = \"$dummy_state$\", skip_key = true } } }\n\
";
