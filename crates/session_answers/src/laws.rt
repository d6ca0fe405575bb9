ghost use Rattle.std.specs.Prelude.{◌≡◌, ◌<◌, ◌≤◌, ℕ, List, length, map, slice_get, Option, Some};
ghost use Rattle.std.specs.List.{Contains};
ghost use Rattle.edge_lattice.specs.declared.state.State.{State};
ghost use Rattle.edge_lattice.specs.declared.state.State.TheVariants.{Deleted};
ghost use Rattle.edge_board.specs.States.{AreAtMost};
ghost use Rattle.grove_edits.specs.declared.edit.Edit.{Edit};
ghost use Rattle.grove_edits.specs.Edit.{edit_edge};
ghost use Rattle.grove_edits.specs.Graph.{graph};
ghost use Rattle.session_script.specs.declared.item.Block.{Block};
ghost use Rattle.session_script.specs.declared.session.Session.{Session};
ghost use Rattle.session_script.specs.Session.{IsSession, Spells};
ghost use Rattle.session_run.specs.Boards.{slots_at};
ghost use Rattle.replica_core.specs.Content.{Content};
ghost use Rattle.session_report.specs.Journal.{Entries};
ghost use Rattle.session_report.specs.Taken.{Journals, taken};
ghost use Rattle.session_report.specs.Legal.{AreLegal};
ghost use Rattle.session_report.specs.Summary.{IsSummary};
ghost use Rattle.session_report.specs.Alone.{IsWithoutMeetings};
ghost use Rattle.session_gen.specs.Generated.{generated_text};
ghost use Rattle.session_answers.specs.Boards.{states_had, AreHeld};
ghost use Rattle.session_answers.specs.Running.{stage_of, sources_of, HaveRun};

/// Law: where each replica is asked by one actor at most in each block, it takes the same edits in the same order, whatever the
/// legal journals are.
pub fn without_meetings_there_is_one_course()
    ensures { (session : Session) (journals others : Journals Content) → IsSession session → IsWithoutMeetings session → AreLegal session journals → AreLegal session others
        → (replica : ℕ) → replica < length session.replicas → taken journals replica session.items ≡ taken others replica session.items }
{}

/// Law: the generated session of a size has one summary, whatever its legal journals are.
pub fn one_summary_of_each_size()
    ensures { (loads : ℕ) (a b : Session) (journals others : Journals Content) (x y : List ℕ) → loads ≤ 200000 → Spells (generated_text loads) a → Spells (generated_text loads) b
        → AreLegal a journals → AreLegal b others → IsSummary a journals x → IsSummary b others y → x ≡ y }
{}

/// Law: where replicas have run a block that each opened, every edge whose slot an author of the replica cut is deleted in the graph of
/// the replica, and what its board holds as it is closed is at most what that graph has of each edge.
pub fn what_is_raised_is_deleted()
    ensures deleted { (session : Session) (block : Block) (first_send : ℕ) (firsts lasts : List Content) (journals : List (Entries Content)) → IsSession session → HaveRun session block first_send firsts journals lasts
        → (number : ℕ) (first last : Content) → slice_get firsts number ≡ Some first → slice_get lasts number ≡ Some last → first.opening ≡ map edit_edge first.edits
        → (slot : ℕ) (edit : Edit) → Contains (slots_at (stage_of session block first_send (sources_of firsts) number) first.edits) slot → slice_get first.edits slot ≡ Some edit → graph last.edits (edit_edge edit) ≡ Deleted }
    ensures held { (session : Session) (block : Block) (first_send : ℕ) (firsts lasts : List Content) (journals : List (Entries Content)) → IsSession session → HaveRun session block first_send firsts journals lasts
        → (number : ℕ) (first last : Content) → slice_get firsts number ≡ Some first → slice_get lasts number ≡ Some last → first.opening ≡ map edit_edge first.edits
        → (held : List (Option (List State))) (states : List State) → AreHeld session block first_send (sources_of firsts) held → slice_get held number ≡ Some (Some states) → AreAtMost states (states_had (graph last.edits) first.edits) }
{}
