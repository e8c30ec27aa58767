ghost use Rattle.std.specs.Prelude.{◌≡◌, option_map, map, bytes_eq, ◌||◌};
ghost use Rattle.std.specs.List.{list_any};
ghost use Rattle.serde_json.specs.View.{view, members_view};
ghost use Rattle.dr_base.specs.Unlisted.{unlisted, is_lenient};

use serde_json::{Map, Value};

/// The first key of an object, in ascending byte order, that isn't among the listed ones and whose value is neither
/// null nor false nor an empty list or object; none where there is no such key. It takes no memory, and time by the members
/// times the listed keys.
pub fn first_unlisted<'v>(members: &'v Map<String, Value>, listed: &[&str]) -> Option<&'v str>
    ensures { option_map (λ k. k.now) result ≡ unlisted (map (λ t. t.now) listed.now) (members_view members.now.entries) }
{
    for (key, value) in members.iter() {
        if !passes(key.as_str(), value, listed) {
            return Some(key.as_str());
        }
    }
    None
}

fn passes(key: &str, value: &Value, listed: &[&str]) -> bool
    ensures { result ≡ (list_any (λ t. bytes_eq key.now t.now) listed.now || is_lenient (view value.now)) }
{
    is_listed(key, listed) || is_lenient(value)
}

fn is_listed(key: &str, listed: &[&str]) -> bool
    ensures { result ≡ list_any (λ t. bytes_eq key.now t.now) listed.now }
{
    listed.iter().any(|name| key == *name)
}

fn is_lenient(value: &Value) -> bool
    ensures { result ≡ is_lenient (view value.now) }
{
    match value {
        Value::Null => true,
        Value::Bool(truth) => !*truth,
        Value::Array(items) => items.as_slice().is_empty(),
        Value::Object(members) => members.is_empty(),
        _ => false,
    }
}
