// The last graph drawn for the clause layer: its rooted forest, the colours of its edges, and where their parent paths begin and end.

ghost use Rattle.std.specs.Prelude.{◌≤◌};
ghost use Rattle.closure.specs.Steps.{table_of};
ghost use Rattle.marking.specs.Drawn.{Drawn};
ghost use Rattle.tables.specs.declared.Tables.{Tables as Read};
ghost use Rattle.engine.specs.Ending.{Ends, terms_in, literals_in, EndsIn, PlacesOf, ParentsOf};

use closure::{EDGES, VERTICES};
use graphs::rooting;
use marking::drawing::{Drawing, PARENTS};
use marking::edges::{self, Columns};
use running::state::State;

// How many parent paths each edge has: a derived one as many as its ends have arguments, any other none.
fn places(edges: &Columns, arities: &[u8; VERTICES], count: usize) -> [u8; EDGES]
    requires { (count ≤ 510) × EndsIn edges.now.lefts count }
    ensures { PlacesOf edges.now.lefts edges.now.derived arities.now count result }
{
    let mut places = [0; EDGES];
    for i in 0..count {
        places[i] = if edges.derived[i] {
            arities[edges.lefts[i] as usize]
        } else {
            0
        };
    }
    places
}

// Where the parent paths of each edge begin and end: the arguments of its left end, four places, and those of its right end.
fn lay_parents(
    rows: &[[u16; 4]; VERTICES],
    edges: &Columns,
    count: usize,
    parents: &mut [u16; PARENTS],
)
    requires { (count ≤ 510) × EndsIn edges.now.lefts count × EndsIn edges.now.rights count }
    ensures { ParentsOf rows.now edges.now.lefts edges.now.rights count parents.new }
{
    for k in 0..8 * count {
        let edge = k / 8;
        let end = if k % 8 < 4 {
            edges.lefts[edge]
        } else {
            edges.rights[edge]
        };
        parents[k] = rows[end as usize][k % 4];
    }
}

// The edge records are lent to the clause layer's walk, which takes each apart.
pub fn drawn(end: &State) -> Drawing
    requires { (t : Read) × Ends t end.now }
    ensures { (t : Read) (w : Ends t end.now) → Drawn result (terms_in w.from) (literals_in w.from) (table_of (terms_in w.from) w.state) w.state.graph }
{
    let count = end.graph.count;
    let columns = edges::columns_of(&end.graph.edges, count);
    let mut drawing = Drawing {
        forest: rooting::rooted(&end.graph, &end.labels),
        inb: columns.inb,
        places: places(&columns, &end.arities, count),
        parents: [0; PARENTS],
        count,
    };
    lay_parents(&end.rows, &columns, count, &mut drawing.parents);
    drawing
}
