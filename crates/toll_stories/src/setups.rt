//! How stories begin.

/// ACME and BOLT, a unit, and a recipe of ACME's that consumes `M` and produces `P`.
pub const WITH_RECIPE: &str = r#"
owner-add ACME ACMEKEY1
owner-add BOLT BOLTKEY1
unit-add U1
material-add ACME M kg
material-add ACME P kg
recipe-add ACME R 2
require ACME R 1 consumed ACME M 100
require ACME R 1 produced ACME P 90
"#;

/// A batch of `O` consumes 40 of `A` and produces 50 of `P1`, of which 20 are scrapped.
pub const CONSUMED_AND_PRODUCED: &str = r#"
actual K2 ACME O 1 1 consumed M ACME A S1 40 11
actual K3 ACME O 1 1 produced P ACME P1 S1 50 11
scrap ACME K4 P1 S1 20 12
"#;

/// ACME with two lots of `M`, HOUSE with a released one of `W`, and a recipe of two segments that
/// consumes of each.
pub const WITH_HOUSE: &str = r#"
owner-add ACME ACMEKEY1
unit-add U1
material-add ACME M kg
material-add ACME P kg
material-add HOUSE W kg
recipe-add ACME R 2
require ACME R 1 consumed ACME M 10
require ACME R 1 consumed HOUSE W 10
require ACME R 1 produced ACME P 10
require ACME R 2 consumed ACME M 10
receive ACME K1 M A S 10 1
receive ACME K2 M B S 10 1
receive HOUSE K1 W H-1 S 10 1
release H-1
"#;

/// A batch of `O` by that recipe, which has consumed `A`.
pub const A_CONSUMED: &str = r#"
open ACME O U1
do ACME O 1 start
actual K3 ACME O 1 1 consumed M ACME A S 10 2
"#;

/// It consumes HOUSE's `H-1` and produces `P1` in segment 1, and consumes `B` in segment 2.
pub const P1_PRODUCED: &str = r#"
actual K4 ACME O 1 1 consumed W HOUSE H-1 S 10 2
actual K5 ACME O 1 1 produced P ACME P1 S 10 2
actual K6 ACME O 1 2 consumed M ACME B S 10 3
"#;

/// A file of three actuals, of which the last one repeats the first.
pub const REPEATED_FILE: &str =
    "key,owner,order,batch,segment,use,material,lot_owner,lot,sublot,amount,day
K2,ACME,O,1,1,consumed,M,ACME,A,S1,40,11
K3,ACME,O,1,1,produced,P,ACME,P1,S1,30,11
K2,ACME,O,1,1,consumed,M,ACME,A,S1,40,11
";

/// 100 of `M` in a released lot, and a batch by the recipe that runs.
pub const WITH_BATCH: &str = r#"
receive ACME K1 M A S1 100 10
> ACME ACMEKEY1 POST /orders {"order":"O","recipe":"R","batches":1}
= 200 {"batches":1,"order":"O","recipe":"R","status":"open"}
> ACME ACMEKEY1 POST /lots/A/release
= 200 {"disposition":"released","lot":"A","material":"M","measure":"kg","origin":"receipts","results":[],"sublots":[{"amount":100,"sublot":"S1"}]}
open ACME O U1
do ACME O 1 start
"#;

/// ACME with a recipe of two segments.
pub const WITH_ACME: &str = r#"
owner-add ACME ACMEKEY1
recipe-add ACME R-1 2
"#;

/// An order of ACME's by that recipe.
pub const WITH_ORDER: &str = r#"
> ACME ACMEKEY1 POST /orders {"order":"O-1","recipe":"R-1","batches":2}
= 200 {"batches":2,"order":"O-1","recipe":"R-1","status":"open"}
"#;

/// ACME's two lots of `M` are released, and `O` is placed.
pub const RELEASED_AND_PLACED: &str = r#"
> ACME ACMEKEY1 POST /lots/A/release
= 200 {"disposition":"released","lot":"A","material":"M","measure":"kg","origin":"receipts","results":[],"sublots":[{"amount":10,"sublot":"S"}]}
> ACME ACMEKEY1 POST /lots/B/release
= 200 {"disposition":"released","lot":"B","material":"M","measure":"kg","origin":"receipts","results":[],"sublots":[{"amount":10,"sublot":"S"}]}
> ACME ACMEKEY1 POST /orders {"order":"O","recipe":"R","batches":1}
= 200 {"batches":1,"order":"O","recipe":"R","status":"open"}
"#;

/// HOUSE makes `V` of `W`, of which it has a released lot, and ACME makes `P` of `V`.
pub const WITH_RECIPE_OF_HOUSE: &str = r#"
owner-add ACME ACMEKEY1
unit-add U1
unit-add U2
material-add HOUSE W kg
material-add HOUSE V kg
material-add ACME P kg
recipe-add HOUSE HR 1
require HOUSE HR 1 consumed HOUSE W 10
require HOUSE HR 1 produced HOUSE V 10
recipe-add ACME R 1
require ACME R 1 consumed HOUSE V 4
require ACME R 1 produced ACME P 5
receive HOUSE K1 W H-1 S 10 1
release H-1
"#;

/// A batch of HOUSE has made a lot of it, and ACME has an order that no batch was opened for.
pub const WITH_PRODUCT_OF_HOUSE: &str = r#"
order HO HR 1
open HOUSE HO U1
do HOUSE HO 1 start
actual K2 HOUSE HO 1 1 consumed W HOUSE H-1 S 10 2
actual K3 HOUSE HO 1 1 produced V HOUSE H-2 S 10 2
release H-2
> ACME ACMEKEY1 POST /orders {"order":"O","recipe":"R","batches":1}
= 200 {"batches":1,"order":"O","recipe":"R","status":"open"}
"#;
