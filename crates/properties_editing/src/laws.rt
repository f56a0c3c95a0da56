//! The laws of edits, for use in callers' proofs.
//!
//! The functions do nothing: each states laws as its contract.

ghost use Rattle.std.specs.Prelude.{ℕ, List, Option};
ghost use Rattle.properties_format.specs.Encoding.{Encoding, Repertoire};
ghost use Rattle.properties_format.specs.Settings.{Settings};
ghost use Rattle.properties_format.specs.Writing.{Call};
ghost use Rattle.properties_format.specs.Edits.{Edit};
ghost use Rattle.properties_format.specs.EditLaws.{RemovingNoPairChangesNothing, SettingTwiceIsSettingOnce, SettingGivesTheValue, RemovingTakesTheValue, SettingItsOwnValueChangesNothing, SettingAValueTwiceIsSettingItOnce, SettingAValueAgainChangesNothing, SettingAValueGivesIt, SettingAValueIsWritingAnew, NoEditsChangeNothing, OneEditIsItsCall, ListsOfEditsFollow, PassingOverIsReading, ValueIsAmongPairs};
ghost use Rattle.properties_editing.specs.Plans.{SettingFollowsItsPlan, RemovingFollowsItsPlan, SettingAValueFollowsItsPlan};

/// The effects of edits, for every source, in ASCII only or not. Removing a key that no pair has changes no byte.
/// Setting a key twice is the same as setting it once, to the later value. After a key is set, the map has its value;
/// after a key is removed, the map has no value for it. Every other key keeps its value.
///
/// A value that is set with its layout kept is in the map as well. Setting the value that a key has changes no byte,
/// nor does setting a value again. Setting a value twice is the same as setting it once, to the later value, if the
/// source doesn't have the later value already. Setting the value of a pair in what a writer wrote, with readable
/// output on, gives what the writer writes with that value, if no later pair has its key. The edit is in ASCII only
/// exactly if the writer printed the pair so.
///
/// An empty list of edits returns the source. A list of one edit is the same as the call for that edit. Two lists of
/// edits, concatenated, give what the second list makes of the first list's result.
///
/// An edit has one result at most, and it is what the edit's plan makes: of each group of lines, a plan says that it
/// stays, goes, or becomes other bytes.
///
/// If no comment has a malformed escape, edits that pass over comments have the same results as edits that read them,
/// refusals too. If no pair has one either, a key has the same value whether comments are read or passed over.
///
/// ```text
/// laws::editing();
/// // A proof that comes after may take two lists of edits, made one after the other, to be one list.
/// ```
pub fn editing()
    ensures absent { (e : Encoding) (source key : List ℕ) → RemovingNoPairChangesNothing e source key }
    ensures twice { (r : Repertoire) (source key v w : List ℕ) → SettingTwiceIsSettingOnce r source key v w }
    ensures set { (r : Repertoire) (source key value : List ℕ) → SettingGivesTheValue r source key value }
    ensures removed { (e : Encoding) (source key : List ℕ) → RemovingTakesTheValue e source key }
    ensures own_value { (r : Repertoire) (source key value : List ℕ) → SettingItsOwnValueChangesNothing r source key value }
    ensures value_twice { (r : Repertoire) (source key v w : List ℕ) → SettingAValueTwiceIsSettingItOnce r source key v w }
    ensures value_again { (r : Repertoire) (source key value : List ℕ) → SettingAValueAgainChangesNothing r source key value }
    ensures value { (r : Repertoire) (source key value : List ℕ) → SettingAValueGivesIt r source key value }
    ensures value_anew { (e : Encoding) (s : Settings) (before : List Call) (key old : List ℕ) (after : List Call) (value : List ℕ) → SettingAValueIsWritingAnew e s before key old after value }
    ensures none { (r : Repertoire) (source : List ℕ) → NoEditsChangeNothing r source }
    ensures one { (r : Repertoire) (source : List ℕ) (edit : Edit) → OneEditIsItsCall r source edit }
    ensures lists { (r : Repertoire) (source : List ℕ) (xs ys : List Edit) → ListsOfEditsFollow r source xs ys }
    ensures set_plan { (r : Repertoire) (source key value : List ℕ) → SettingFollowsItsPlan r source key value }
    ensures removed_plan { (e : Encoding) (source key : List ℕ) → RemovingFollowsItsPlan e source key }
    ensures value_plan { (r : Repertoire) (source key value : List ℕ) → SettingAValueFollowsItsPlan r source key value }
    ensures passed_over { (r : Repertoire) (source : List ℕ) (edits : List Edit) → PassingOverIsReading r source edits }
    ensures among_pairs { (e : Encoding) (source key : List ℕ) (value : Option (List ℕ)) → ValueIsAmongPairs e source key value }
{}
