//! The laws of renaming, for use in callers' proofs.
//!
//! The functions do nothing: each states laws as its contract.

ghost use Rattle.std.specs.Prelude.{ℕ, List};
ghost use Rattle.properties_format.specs.Encoding.{Repertoire};
ghost use Rattle.properties_editing.specs.declared.source.SourceOptions.{SourceOptions};
ghost use Rattle.properties_renaming.specs.Commenting.{NewText};
ghost use Rattle.properties_renaming.specs.Laws.{RenamingAgainIsRefused, RenamingBackGivesTheContents, RenamingChangesTheKey, RenamingMovesTheValue, RemovingWithCommentsKeepsTheRest, RemovingWithCommentsTakesTheValues, SettingCommentsKeepsTheMap, SettingCommentsKeepsTheRest, SettingPlainCommentsBreaksNothing};

/// What a source says after a key was renamed to one that isn't empty, if none of its entries was malformed. The
/// encoding in force stays, and no entry is malformed. The comments, and the pairs with their values, are those of the
/// source, in order, with the new key in each pair that had the old one. So the map has the value of the old key under
/// the new one, and every other key keeps its value. If the key is then renamed back, the comments and pairs are those
/// of the source.
///
/// A second call for the same keys renames nothing, since no pair has the old key.
///
/// ```text
/// laws::renaming();
/// // A proof that comes after may take the contents of a source to be those before, with another key.
/// ```
pub fn renaming()
    ensures contents { (r : Repertoire) (source old new : List ℕ) → RenamingChangesTheKey r source old new }
    ensures map { (r : Repertoire) (source old new : List ℕ) → RenamingMovesTheValue r source old new }
    ensures back { (r : Repertoire) (source old new : List ℕ) → RenamingBackGivesTheContents r source old new }
    ensures again { (options : SourceOptions) (source old new : List ℕ) → RenamingAgainIsRefused options source old new }
{}

/// What a source says after comments of keys were set, and after keys were removed with their comments, if none of its
/// entries was malformed. The encoding in force stays.
///
/// After [`set_comments`](crate::set_comments), comments right before the last pairs with these keys may differ. All
/// other comments, and the pairs with their values, are those of the source, in order, so every key keeps its value.
/// This holds if no entry of the result is malformed, and none is if no text holds a backslash.
///
/// After [`remove_with_comments`](crate::remove_with_comments), no entry is malformed, and the pairs with other keys are
/// those of the source, in order. So these keys have no value, and every other key keeps its own.
///
/// ```text
/// laws::commenting();
/// // A proof that comes after may take the map of a source to be the one before its comments were set.
/// ```
pub fn commenting()
    ensures set { (r : Repertoire) (source : List ℕ) (texts : List NewText) → SettingCommentsKeepsTheRest r source texts }
    ensures sound { (r : Repertoire) (source : List ℕ) (texts : List NewText) → SettingPlainCommentsBreaksNothing r source texts }
    ensures map { (r : Repertoire) (source : List ℕ) (texts : List NewText) → SettingCommentsKeepsTheMap r source texts }
    ensures removed { (r : Repertoire) (source : List ℕ) (keys : List (List ℕ)) → RemovingWithCommentsKeepsTheRest r source keys }
    ensures removed_map { (r : Repertoire) (source : List ℕ) (keys : List (List ℕ)) → RemovingWithCommentsTakesTheValues r source keys }
{}
