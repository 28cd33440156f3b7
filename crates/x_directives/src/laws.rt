//! Laws of blanked texts: functions that do nothing and ensure them.
ghost use Rattle.std.specs.Prelude.{◌≡◌, ◌+◌, ◌==◌, ℕ, false, List, length, slice_index, slice_range};
ghost use Rattle.std.specs.List.{All, list_any};
ghost use Rattle.x_directives.specs.Directives.{lines, is_directive, is_inside, marked_lines};
ghost use Rattle.x_directives.specs.Blanked.{blanked, blanked_line};
ghost use Rattle.x_directives.specs.Comments.{commented_behind};

/// A blanked text is as long as the text.
pub fn blanked_length()
    ensures { (text : List ℕ) → length (blanked text) ≡ length text }
{}

/// A blanked text has a line feed exactly where the text has one.
pub fn blanked_line_feeds()
    ensures { (text : List ℕ) (place : ℕ)
        → (slice_index (blanked text) place == 10) ≡ (slice_index text place == 10) }
{}

/// A text stays as it is where none of its lines is a directive.
pub fn plain_text_stays()
    ensures { (text : List ℕ) → list_any is_directive (lines text) ≡ false → blanked text ≡ text }
{}

/// Comments begin and end in a blanked line where they do in the line.
pub fn comments_stay()
    ensures { (text : List ℕ) → All (λ line. commented_behind line.commented (blanked_line line)
        ≡ commented_behind line.commented line.bytes) (marked_lines text) }
{}

/// A line that is of no directive stays, in its place.
pub fn other_lines_stay()
    ensures { (text : List ℕ) → All (λ line. is_inside line.part ≡ false
        → slice_range (blanked text) line.start (line.start + length line.bytes) ≡ line.bytes)
        (marked_lines text) }
{}
