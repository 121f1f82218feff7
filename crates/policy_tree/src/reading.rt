//! Reads what the tree of a policy says.
ghost use Rattle.std.specs.Prelude.{◌≡◌, Some, Ok, Err, IfOk, option_map, codes};
ghost use Rattle.toml.specs.Data.{no_members, get_member, get_item};
ghost use Rattle.toml.specs.View.{view, items_view, table_view};
ghost use Rattle.policy_tree.specs.Outcomes.{Gives, behind};
ghost use Rattle.policy_tree.specs.PolicyTree.{no_other as nothing_else, text_of as text_by, texts_in as texts_by, array_of as array_by, some_texts as some_texts_by, two_of as two_by, pair_in as pair_by, pairs_in as pairs_by, flows_of as flows_by, observers_of as observers_by, contexts_named as contexts_by, contexts_of as contexts_key_by, table_of as table_by, label_at as label_by, labels_in as labels_by, release_of as release_by, releases_in as releases_by, name_of as table_name, labels_of as all_labels_by, releases_of as all_releases_by, written_of};

use crate::faults::PolicyFault;
use crate::keys::{KeySet, first_unknown, value_at};
use crate::written::{ContextsKey, LabelTable, NamedLabel, WrittenLabel, WrittenPolicy};
use jo_ids::{List, Memory};
use jo_text::Name;
use std::alloc::Global;
use toml::{Table, Value};

fn copy_name(alloc: Global, text: &str) -> Result<Name, Memory>
    ensures { IfOk result (λ name. name ≡ text.now) }
{
    let mut name = Name::new(alloc);
    name.append(text.as_bytes())?;
    Ok(name)
}

/// The fault that names this key.
fn wrong<T>(alloc: Global, key: &str) -> Result<T, PolicyFault>
    ensures { Gives (λ x. x) result (Err (PolicyFault.Key key.now)) }
{
    let name = copy_name(alloc, key)?;
    Err(PolicyFault::Key(name))
}

/// No key besides the known ones.
fn no_other(alloc: Global, keys: KeySet, table: &Table) -> Result<(), PolicyFault>
    ensures { Gives (λ x. x) result (nothing_else keys (table_view table.now)) }
{
    match first_unknown(keys, table) {
        Some(key) => wrong(alloc, key),
        None => Ok(()),
    }
}

// ---- texts

fn text_of(alloc: Global, key: &str, value: Option<&Value>) -> Result<Name, PolicyFault>
    ensures { Gives (λ x. x) result (text_by key.now (option_map (λ v. view v.now) value.entry)) }
{
    let Some(value) = value else {
        return wrong(alloc, key);
    };
    match value.as_str() {
        Some(text) => {
            let name = copy_name(alloc, text)?;
            Ok(name)
        }
        None => wrong(alloc, key),
    }
}

fn texts_in(alloc: Global, key: &str, values: &[Value]) -> Result<List<Name>, PolicyFault>
    ensures { Gives (λ x. x) result (texts_by key.now (items_view values.now)) }
{
    let mut texts = List::new(alloc);
    for value in values {
        let text = text_of(alloc, key, Some(value))?;
        texts.push(text)?;
    }
    Ok(texts)
}

fn array_of<'a>(
    alloc: Global,
    key: &str,
    value: Option<&'a Value>,
) -> Result<&'a [Value], PolicyFault>
    ensures { Gives (λ values. items_view values.now) result (array_by key.now (option_map (λ v. view v.now) value.entry)) }
{
    let Some(value) = value else {
        return wrong(alloc, key);
    };
    match value.as_array() {
        Some(values) => Ok(values.as_slice()),
        None => wrong(alloc, key),
    }
}

/// The texts of an array of one or more.
fn some_texts(alloc: Global, key: &str, value: Option<&Value>) -> Result<List<Name>, PolicyFault>
    ensures { Gives (λ x. x) result (some_texts_by key.now (option_map (λ v. view v.now) value.entry)) }
{
    let values = array_of(alloc, key, value)?;
    let texts = texts_in(alloc, key, values)?;
    if texts.as_slice().len() == 0 {
        wrong(alloc, key)
    } else {
        Ok(texts)
    }
}

// ---- pairs of texts

fn item_at(values: &[Value], place: usize) -> Option<&Value>
    ensures { option_map (λ v. view v.now) result ≡ get_item place (items_view values.now) }
{
    values.get(place)
}

/// The items of an array of two.
fn two_of(values: &[Value]) -> Option<(&Value, &Value)>
    ensures { option_map (λ two. (view two.0.now, view two.1.now)) result ≡ two_by (items_view values.now) }
{
    let first = item_at(values, 0)?;
    let second = item_at(values, 1)?;
    match item_at(values, 2) {
        None => Some((first, second)),
        Some(_) => None,
    }
}

fn pair_in(alloc: Global, key: &str, values: &[Value]) -> Result<(Name, Name), PolicyFault>
    ensures { Gives (λ x. x) result (pair_by key.now (items_view values.now)) }
{
    let Some((a, b)) = two_of(values) else {
        return wrong(alloc, key);
    };
    let first = text_of(alloc, key, Some(a))?;
    let second = text_of(alloc, key, Some(b))?;
    Ok((first, second))
}

fn pairs_in(alloc: Global, key: &str, values: &[Value]) -> Result<List<(Name, Name)>, PolicyFault>
    ensures { Gives (λ x. x) result (pairs_by key.now (items_view values.now)) }
{
    let mut pairs = List::new(alloc);
    for value in values {
        let items = array_of(alloc, key, Some(value))?;
        let pair = pair_in(alloc, key, items)?;
        pairs.push(pair)?;
    }
    Ok(pairs)
}

// ---- the keys of a policy

fn flows_of(alloc: Global, tree: &Table) -> Result<List<(Name, Name)>, PolicyFault>
    ensures { Gives (λ x. x) result (flows_by (get_member (codes "flows") (table_view tree.now))) }
{
    match value_at(tree, "flows") {
        None => Ok(List::new(alloc)),
        Some(value) => {
            let values = array_of(alloc, "flows", Some(value))?;
            pairs_in(alloc, "flows", values)
        }
    }
}

fn observers_of(alloc: Global, tree: &Table) -> Result<Option<List<Name>>, PolicyFault>
    ensures { Gives (λ x. x) result (observers_by (get_member (codes "observers") (table_view tree.now))) }
{
    match value_at(tree, "observers") {
        None => Ok(None),
        Some(value) => {
            let texts = some_texts(alloc, "observers", Some(value))?;
            Ok(Some(texts))
        }
    }
}

fn contexts_named(text: &str) -> Option<ContextsKey>
    ensures { result ≡ contexts_by text.now }
{
    if text == "none" {
        Some(ContextsKey::NoContext)
    } else if text == "object1" {
        Some(ContextsKey::Object1)
    } else if text == "object2" {
        Some(ContextsKey::Object2)
    } else {
        None
    }
}

fn contexts_of(alloc: Global, tree: &Table) -> Result<ContextsKey, PolicyFault>
    ensures { Gives (λ x. x) result (contexts_key_by (get_member (codes "contexts") (table_view tree.now))) }
{
    let Some(value) = value_at(tree, "contexts") else {
        return Ok(ContextsKey::Object1);
    };
    let Some(text) = value.as_str() else {
        return wrong(alloc, "contexts");
    };
    match contexts_named(text) {
        Some(contexts) => Ok(contexts),
        None => wrong(alloc, "contexts"),
    }
}

// ---- the tables of labels

/// The table at a key, where no key stands for an empty table.
fn table_of<'a>(
    alloc: Global,
    key: &str,
    tree: &'a Table,
    empty: &'a Table,
) -> Result<&'a Table, PolicyFault>
    requires { table_view empty.now ≡ no_members }
    ensures { Gives (λ t. table_view t.now) result (table_by key.now (get_member key.now (table_view tree.now))) }
{
    let Some(value) = value_at(tree, key) else {
        return Ok(empty);
    };
    match value.as_table() {
        Some(table) => Ok(table),
        None => wrong(alloc, key),
    }
}

fn label_at(table: LabelTable, level: Name) -> NamedLabel
    ensures { result ≡ label_by table level }
{
    match table {
        LabelTable::Sources => NamedLabel::Source(level),
        LabelTable::Sinks => NamedLabel::Sink(level),
    }
}

fn labels_in(
    alloc: Global,
    table: LabelTable,
    entries: &Table,
    before: List<WrittenLabel>,
) -> Result<List<WrittenLabel>, PolicyFault>
    ensures { Gives (λ x. x) result (behind before (labels_by table (table_view entries.now))) }
{
    let mut labels = before;
    for (key, value) in entries {
        let level = text_of(alloc, key.as_str(), Some(value))?;
        let label = label_at(table, level);
        let method = copy_name(alloc, key.as_str())?;
        labels.push(WrittenLabel { method, label })?;
    }
    Ok(labels)
}

#[tactic(auto, unfolding(crate::specs::PolicyTree::release_of))]
fn release_of(alloc: Global, key: &str, value: &Value) -> Result<NamedLabel, PolicyFault>
    ensures { Gives (λ x. x) result (release_by key.now (view value.now)) }
{
    let Some(table) = value.as_table() else {
        return wrong(alloc, key);
    };
    let from = text_of(alloc, "from", value_at(table, "from"))?;
    let to = text_of(alloc, "to", value_at(table, "to"))?;
    no_other(alloc, KeySet::Release, table)?;
    Ok(NamedLabel::Release { from, to })
}

fn releases_in(
    alloc: Global,
    entries: &Table,
    before: List<WrittenLabel>,
) -> Result<List<WrittenLabel>, PolicyFault>
    ensures { Gives (λ x. x) result (behind before (releases_by (table_view entries.now))) }
{
    let mut labels = before;
    for (key, value) in entries {
        let label = release_of(alloc, key.as_str(), value)?;
        let method = copy_name(alloc, key.as_str())?;
        labels.push(WrittenLabel { method, label })?;
    }
    Ok(labels)
}

fn name_of(table: LabelTable) -> &'static str
    ensures { result.now ≡ table_name table }
{
    match table {
        LabelTable::Sources => "sources",
        LabelTable::Sinks => "sinks",
    }
}

/// The labels of a table behind those that are there.
fn labels_of(
    alloc: Global,
    table: LabelTable,
    tree: &Table,
    before: List<WrittenLabel>,
) -> Result<List<WrittenLabel>, PolicyFault>
    ensures { Gives (λ x. x) result (behind before (all_labels_by table (table_view tree.now))) }
{
    let empty = Table::new(alloc);
    let entries = table_of(alloc, name_of(table), tree, &empty)?;
    labels_in(alloc, table, entries, before)
}

/// The releases behind the labels that are there.
fn releases_of(
    alloc: Global,
    tree: &Table,
    before: List<WrittenLabel>,
) -> Result<List<WrittenLabel>, PolicyFault>
    ensures { Gives (λ x. x) result (behind before (all_releases_by (table_view tree.now))) }
{
    let empty = Table::new(alloc);
    let entries = table_of(alloc, "releases", tree, &empty)?;
    releases_in(alloc, entries, before)
}

// ---- the policy

/// What a tree says, or the first of its keys that is missing, unknown or of another kind.
pub fn read_written(alloc: Global, tree: &Table) -> Result<WrittenPolicy, PolicyFault>
    ensures { Gives (λ x. x) result (written_of (table_view tree.now)) }
{
    let levels = some_texts(alloc, "levels", value_at(tree, "levels"))?;
    let flows = flows_of(alloc, tree)?;
    let observers = observers_of(alloc, tree)?;
    let contexts = contexts_of(alloc, tree)?;
    let entry = text_of(alloc, "entry", value_at(tree, "entry"))?;
    let labels = labels_of(alloc, LabelTable::Sources, tree, List::new(alloc))?;
    let labels = labels_of(alloc, LabelTable::Sinks, tree, labels)?;
    let labels = releases_of(alloc, tree, labels)?;
    no_other(alloc, KeySet::Policy, tree)?;
    Ok(WrittenPolicy {
        levels,
        flows,
        observers,
        contexts,
        entry,
        labels,
    })
}
