//! Laws of the definitions. The functions do nothing; each carries a theorem as its contract.

ghost use Rattle.std.specs.Prelude.{◌≡◌, ◌⊎◌, ℕ, Bool, true, false, List, None, Some};
ghost use Rattle.std.specs.List.{list_any};
ghost use Rattle.cell_refs.specs.declared.grid.Cell.{Cell};
ghost use Rattle.cell_values.specs.declared.values.Value.{Value};
ghost use Rattle.workbook.specs.declared.contents.Content.{Content};
ghost use Rattle.workbook.specs.Book.{IsInOrder, is_formula, content_at, cell_precedents, formula_count};
ghost use Rattle.workbook.specs.Circular.{is_circular, walks_on};
ghost use Rattle.cell_refs.specs.Cell.{is_among};
ghost use Rattle.workbook.specs.Stale.{reaches, is_stale};
ghost use Rattle.workbook.specs.Meaning.{Setting, meaning, Val, Circ, content_meaning, asks_call, is_open};
ghost use Rattle.workbook.specs.Evaluation.{World, answer_of};
ghost use Rattle.workbook.specs.Agreement.{AcceptsAsMuch, AgreesBesideTopics, IsAlikeBesideChanged};
ghost use Rattle.workbook.specs.Reads.{answer_knowing, cell_reads, is_listed, reads_topic, these_alone, topics_of_cell, topics_read};
ghost use Rattle.cell_values.specs.declared.topics.Topic.{Topic};
ghost use Rattle.formula_parse.specs.declared.nodes.Node.{Node};

/// From a circular cell there are walks of every length, and a cell is circular exactly where it names a
/// circular cell.
pub fn circular_cells()
    ensures walks { (book : List (Cell × Content)) → IsInOrder book
        → (cell : Cell) → is_circular book cell ≡ true → (steps : ℕ)
        → walks_on book steps cell ≡ true }
    ensures names { (book : List (Cell × Content)) → IsInOrder book
        → (cell : Cell)
        → is_circular book cell ≡ list_any (is_circular book) (cell_precedents book cell) }
{}

/// What is reached in any number of steps is reached in as many as there are formula cells.
pub fn reached_cells()
    ensures { (book : List (Cell × Content)) → IsInOrder book
        → (changed : List Cell) (steps : ℕ) (cell : Cell)
        → reaches book changed steps cell ≡ true
        → reaches book changed (formula_count book) cell ≡ true }
{}

/// A cell that isn't circular has the meaning of its content over the meanings of the cells that it names.
pub fn meanings_of_formulas()
    ensures circular { (setting : Setting) (book : List (Cell × Content)) (cell : Cell)
        → is_circular book cell ≡ true → meaning setting book cell ≡ Circ }
    ensures content { (setting : Setting) (book : List (Cell × Content)) → IsInOrder book
        → (cell : Cell) → is_circular book cell ≡ false
        → meaning setting book cell ≡ content_meaning setting cell (meaning setting book)
        (content_at book cell) }
{}

/// A formula cell that isn't stale keeps its meaning, and so does a constant that wasn't changed.
pub fn kept_meanings()
    ensures { (setting : Setting) (before now : List (Cell × Content)) (changed : List Cell)
        → IsInOrder before → IsInOrder now
        → ((cell : Cell) → is_among changed cell ≡ false
        → content_at before cell ≡ content_at now cell)
        → (cell : Cell) → is_among changed cell ≡ false → is_stale now changed cell ≡ false
        → meaning setting before cell ≡ meaning setting now cell }
{}

/// A cell that is neither changed nor stale keeps its meaning and the topics that it reads from one
/// setting to another, where all beside what is changed is alike.
pub fn kept_between_settings()
    ensures meaning { (earlier later : Setting) (before now : List (Cell × Content))
        → (changed : List Cell) → IsInOrder before → IsInOrder now
        → IsAlikeBesideChanged earlier later before now changed
        → (cell : Cell) → is_among changed cell ≡ false → is_stale now changed cell ≡ false
        → meaning earlier before cell ≡ meaning later now cell }
    ensures topics { (earlier later : Setting) (before now : List (Cell × Content))
        → (changed : List Cell) → IsInOrder before → IsInOrder now
        → IsAlikeBesideChanged earlier later before now changed
        → (cell : Cell) → is_among changed cell ≡ false → is_stale now changed cell ≡ false
        → topics_of_cell earlier before cell ≡ topics_of_cell later now cell }
    ensures reads { (earlier later : Setting) (before now : List (Cell × Content))
        → (changed : List Cell) → IsInOrder before → IsInOrder now
        → IsAlikeBesideChanged earlier later before now changed
        → (cell : Cell) → is_among changed cell ≡ false → is_stale now changed cell ≡ false
        → (topic : Topic) → cell_reads earlier before cell topic ≡ cell_reads later now cell topic }
{}

/// A cell that has a value or is circular keeps its meaning where more values are accepted.
pub fn settled_meanings()
    ensures { (earlier later : Setting) → AcceptsAsMuch earlier later
        → (book : List (Cell × Content)) → IsInOrder book
        → (cell : Cell) → is_open (meaning earlier book cell) ≡ false
        → meaning earlier book cell ≡ meaning later book cell }
{}

/// Where no cell asks for a call none waits: each has a value or is circular.
pub fn completed_meanings()
    ensures { (setting : Setting) (book : List (Cell × Content)) → IsInOrder book
        → ((cell : Cell) → asks_call (meaning setting book cell) ≡ false) → (cell : Cell)
        → (meaning setting book cell ≡ Circ) ⊎ ((v : Value) × (meaning setting book cell ≡ Val v)) }
{}

/// Where no name is registered, each cell has a value or is circular: no recalculation has to wait.
pub fn nothing_is_asked()
    ensures { (setting : Setting) → ((name : List ℕ) → setting.registered name ≡ None)
        → (book : List (Cell × Content)) (cell : Cell)
        → (meaning setting book cell ≡ Circ) ⊎ ((v : Value) × (meaning setting book cell ≡ Val v)) }
{}

/// What a formula comes to depends on the cells that it names, the names that it calls, its sites and
/// the topics that it reads alone.
pub fn answers_of_formulas()
    ensures known { (world other : World) (tree : Node) → AgreesBesideTopics world other tree
        → ((topic : Topic) → world.known topic ≡ other.known topic)
        → answer_of world tree ≡ answer_of other tree }
    ensures read { (world other : World) (tree : Node) → AgreesBesideTopics world other tree
        → (snapshot later : Topic → Value)
        → ((topic : Topic) → reads_topic world snapshot tree topic ≡ true
        → snapshot topic ≡ later topic)
        → answer_knowing world tree (λ topic. Some (snapshot topic))
        ≡ answer_knowing other tree (λ topic. Some (later topic)) }
{}

/// The list of the topics that a formula or a cell reads has exactly these, and no other topic has to
/// be known.
pub fn topics_of_formulas()
    ensures listed { (world : World) (snapshot : Topic → Value) (tree : Node) (topic : Topic)
        → is_listed (topics_read world snapshot tree) topic
        ≡ reads_topic world snapshot tree topic }
    ensures enough { (world : World) (snapshot : Topic → Value) (tree : Node)
        → answer_knowing world tree (these_alone (topics_read world snapshot tree) snapshot)
        ≡ answer_knowing world tree (λ topic. Some (snapshot topic)) }
    ensures cells { (setting : Setting) (book : List (Cell × Content)) (cell : Cell)
        → (topic : Topic)
        → is_listed (topics_of_cell setting book cell) topic
        ≡ cell_reads setting book cell topic }
{}
