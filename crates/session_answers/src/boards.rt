//! The boards of a block: one for each replica whose authors cut and that opens with edges, on which they raise the slots of those that
//! they cut.
ghost use Rattle.std.specs.Prelude.{◌≡◌, length, map, IfOk};
ghost use Rattle.std.specs.List.{AllZip};
ghost use Rattle.std.specs.Option.{option_map};
ghost use Rattle.edge_board.specs.Seats.{first_board_seat};
ghost use Rattle.author_desk.specs.Cuts.{opening_edits, seat_of};
ghost use Rattle.grove_edits.specs.Graph.{state_of};
ghost use Rattle.session_answers.specs.Boards.{states_of as are_states_of, parts_at as all_parts_at, IsBoardFor, AreBoards, cut_from, all_cut_from, board_of as board_under, IsWholeSeat, held_by, all_held, states_in};
ghost use Rattle.session_answers.specs.Opened.{cuts_at};

use crate::opened::has_cut;
use author_desk::Cuts;
use edge_board::{Board, BoardSeat};
use edge_lattice::State;
use grove_edits::{Edit, EditKind, EditList};
use session_run::authors_at_work;
use session_script::{AuthorList, Line};
use std::alloc::Global;
use text_parts::NoMemory;

/// The boards of replicas of which this was listed, each with its first seat.
pub(crate) fn boards_of(
    alloc: Global,
    lists: &[EditList],
    authors: &AuthorList,
    lines: &[Line],
) -> Result<(Vec<Option<Board>>, Vec<Option<BoardSeat>>), NoMemory>
    ensures boards { IfOk result (λ made. AreBoards authors.now lines.now lists.now made.0.items) }
    ensures seats { IfOk result (λ made. made.1.items ≡ map (option_map first_board_seat) made.0.items) }
{
    let mut boards = Vec::with_capacity(alloc, lists.len())?;
    let mut seats = Vec::with_capacity(alloc, lists.len())?;
    for (replica, opening) in lists.iter().enumerate() {
        let (board, seat) = board_at(alloc, authors, lines, replica as u64, opening.as_slice())?;
        boards.push(board)?;
        seats.push(seat)?;
    }
    Ok((boards, seats))
}

// The board of a replica of which these edits were listed, and its first seat.
fn board_at(
    alloc: Global,
    authors: &AuthorList,
    lines: &[Line],
    replica: u64,
    opening: &[Edit],
) -> Result<(Option<Board>, Option<BoardSeat>), NoMemory>
    ensures board { IfOk result (λ made. IsBoardFor (cuts_at authors.now lines.now replica) opening.now (all_parts_at authors.now lines.now replica) made.0) }
    ensures seat { IfOk result (λ made. made.1 ≡ option_map first_board_seat made.0) }
{
    if opening.is_empty() || !has_cut(authors, lines, replica) {
        return Ok((None, None));
    }
    let states = states_of(alloc, opening)?;
    let (board, seat) = Board::new(alloc, &states, parts_at(authors, lines, replica))?;
    Ok((Some(board), Some(seat)))
}

// The states that edits give their edges.
fn states_of(alloc: Global, edits: &[Edit]) -> Result<Vec<State>, NoMemory>
    ensures { IfOk result (λ states. states.items ≡ are_states_of edits.now) }
{
    Ok(
        edits
            .iter()
            .map(|edit| state_by(edit.kind()))
            .collect(alloc)?,
    )
}

fn state_by(kind: EditKind) -> State
    ensures { result ≡ state_of kind }
{
    match kind {
        EditKind::Insert => State::Live,
        EditKind::Delete => State::Deleted,
    }
}

// How many parts a replica's board has: authors with lines take one each for the block, and one stays with its first seat.
fn parts_at(authors: &AuthorList, lines: &[Line], replica: u64) -> u64
    ensures { result ≡ all_parts_at authors.now lines.now replica }
{
    // At most all authors are at work, and a slice has so few items that one more fits.
    let _authors = authors.as_slice();
    authors_at_work(authors, lines, replica) as u64 + 1
}

/// The cuts of replicas of which this was listed, at their boards.
pub(crate) fn cuts_on<'a>(
    alloc: Global,
    lists: &'a [EditList],
    boards: &'a [Option<Board>],
    seats: Vec<Option<BoardSeat>>,
) -> Result<Vec<Cuts<'a>>, NoMemory>
    requires boards { length boards.now ≡ length lists.now }
    requires seats { seats.items ≡ map (option_map first_board_seat) boards.now }
    ensures opening { IfOk result (λ cuts. map opening_edits cuts.items ≡ all_cut_from lists.now boards.now) }
    ensures boards { IfOk result (λ cuts. map board_under cuts.items ≡ boards.now) }
    ensures seats { IfOk result (λ cuts. map seat_of cuts.items ≡ seats.items) }
{
    let mut cuts = Vec::with_capacity(alloc, lists.len())?;
    for seat in seats {
        let replica = cuts.len();
        cuts.push(cuts_from(&lists[replica], &boards[replica], seat))?;
    }
    Ok(cuts)
}

// The cuts of a replica of which these edits were listed, at its board.
fn cuts_from<'a>(
    opening: &'a EditList,
    board: &'a Option<Board>,
    seat: Option<BoardSeat>,
) -> Cuts<'a>
    requires seat { seat ≡ option_map first_board_seat board.now }
    ensures opening { opening_edits result ≡ cut_from opening.now board.now }
    ensures board { board_under result ≡ board.now }
    ensures seat { seat_of result ≡ seat }
{
    match (board, seat) {
        (Some(board), Some(seat)) => Cuts::On {
            opening,
            board,
            seat,
        },
        _ => Cuts::Empty,
    }
}

/// The seats of cuts, where they have some.
pub(crate) fn seats_of(
    alloc: Global,
    cuts: Vec<Cuts<'_>>,
) -> Result<Vec<Option<BoardSeat>>, NoMemory>
    ensures { IfOk result (λ seats. seats.items ≡ map seat_of cuts.entry.items) }
{
    let mut seats = Vec::with_capacity(alloc, cuts.len())?;
    for own in cuts {
        seats.push(own.into_seat())?;
    }
    Ok(seats)
}

/// Closes boards, each by its whole seat, and answers what they hold.
pub(crate) fn close_all(
    alloc: Global,
    boards: Vec<Option<Board>>,
    seats: Vec<Option<BoardSeat>>,
) -> Result<Vec<Option<Vec<State>>>, NoMemory>
    requires { AllZip IsWholeSeat boards.items seats.items }
    ensures { IfOk result (λ held. map states_in held.items ≡ all_held boards.items seats.items) }
{
    let mut held = Vec::with_capacity(alloc, boards.len())?;
    for (board, seat) in boards.into_iter().zip(seats) {
        held.push(close(board, seat))?;
    }
    Ok(held)
}

fn close(board: Option<Board>, seat: Option<BoardSeat>) -> Option<Vec<State>>
    requires { IsWholeSeat board seat }
    ensures { states_in result ≡ held_by board seat }
{
    match (board, seat) {
        (Some(board), Some(seat)) => Some(board.close(seat)),
        _ => None,
    }
}
