//! Basins that several of the tests take, and texts of their runs, worked out by hand.

/// A gauge at the head of one river.
pub const GAUGED: &str = "\
    format = 1\nfirst_month = \"1900-01\"\nmonths = 2\n\
    [[node]]\nname = \"top\"\ninflow = \"gauged\"\n\
    [[node]]\nname = \"mouth\"\noutlet = true\n\
    [[link]]\nname = \"a\"\nfrom = \"top\"\nto = \"mouth\"\n";

/// The junior gets what the senior leaves.
pub const JUNIOR_SHORT: (&str, &str) = (
    r#"format = 1
first_month = "1900-01"
months = 1
[[node]]
name = "top"
inflow = 80
[[node]]
name = "mid"
[[node]]
name = "mouth"
outlet = true
[[link]]
name = "a"
from = "top"
to = "mid"
[[link]]
name = "b"
from = "mid"
to = "mouth"
[[diversion]]
name = "old"
node = "mid"
date = "1890-01-01"
want = 60
[[diversion]]
name = "new"
node = "top"
date = "1920-01-01"
want = 50
"#,
    r#"river-result 1
run 1900-01 1
month 1900-01
flow a 60
flow b 0
deliver old 60 60
deliver new 20 50
out mouth 0
call new
in top
in mid
in mouth
end
done 1
"#,
);

/// A dead pool, a city and a live zone, in this order of seniority.
pub const LAKE: (&str, &str) = (
    r#"format = 1
first_month = "1900-01"
months = 1
[[node]]
name = "lake"
[[node]]
name = "town"
outlet = true
[[link]]
name = "ab"
from = "lake"
to = "town"
[[reservoir]]
node = "lake"
opening = 60
[[diversion]]
name = "city"
node = "town"
date = "1900-01-01"
want = 50
[[zone]]
name = "dead"
reservoir = "lake"
level = 1
date = "1850-01-01"
want = 20
[[zone]]
name = "high"
reservoir = "lake"
level = 2
date = "1930-01-01"
want = 100
"#,
    r#"river-result 1
run 1900-01 1
month 1900-01
open lake 60
evap lake 0
flow ab 40
deliver dead 20 20
deliver city 40 50
deliver high 0 100
out town 0
call city
in lake
in town
call high
in lake
in town
called high city
close lake 20
end
done 1
"#,
);

/// The senior gets all there is, and calls the junior.
pub const JUNIOR_DRY: (&str, &str) = (
    r#"format = 1
first_month = "1900-01"
months = 1
[[node]]
name = "top"
inflow = 50
[[node]]
name = "mid"
[[node]]
name = "mouth"
outlet = true
[[link]]
name = "a"
from = "top"
to = "mid"
[[link]]
name = "b"
from = "mid"
to = "mouth"
[[diversion]]
name = "old"
node = "mid"
date = "1890-01-01"
want = 60
[[diversion]]
name = "new"
node = "top"
date = "1920-01-01"
want = 50
"#,
    r#"river-result 1
run 1900-01 1
month 1900-01
flow a 50
flow b 0
deliver old 50 60
deliver new 0 50
out mouth 0
call old
in top
in mid
in mouth
call new
in top
in mid
in mouth
called new old
end
done 1
"#,
);

/// A gauge, a lake, a canal with its farm, a town, trout and a return, over two months.
pub const ORDINARY: &str = r#"format = 1
first_month = "1960-07"
months = 2
node = [
  { name = "upper", inflow = "gauged" },
  { name = "lake" },
  { name = "weir" },
  { name = "farm" },
  { name = "gauge" },
  { name = "sea", outlet = true },
]
link = [
  { name = "r1", from = "upper", to = "lake" },
  { name = "r2", from = "lake", to = "weir" },
  { name = "r3", from = "weir", to = "gauge" },
  { name = "r4", from = "farm", to = "gauge" },
  { name = "r5", from = "gauge", to = "sea" },
  { name = "c1", from = "weir", to = "farm", per_day = 100 },
]

[[reservoir]]
node = "lake"
opening = 8000
area = [[0, 0], [10000, 500]]
rate = [10, 15, 30, 50, 80, 100, 110, 100, 80, 50, 20, 10]

[[diversion]]
name = "canalco"
node = "farm"
date = "1911-06-15"
want = [0, 0, 0, 500, 2000, 3500, 4000, 3800, 1500, 300, 0, 0]

[[diversion]]
name = "city"
node = "weir"
date = "1930-01-01"
want = 400

[[instream]]
name = "fish"
link = "r5"
date = "1905-04-01"
want = 1500

[[zone]]
name = "dead"
reservoir = "lake"
level = 1
date = "1900-01-01"
want = 1000

[[zone]]
name = "live"
reservoir = "lake"
level = 2
date = "1922-03-01"
want = 9000

[[return]]
diversion = "canalco"
node = "gauge"
part = 2500
lag = 1
"#;

/// What its gauge brings in both months.
pub const ORDINARY_SERIES: &str = r#"month,node,amount
1960-07,upper,2500
1960-08,upper,1200
"#;

/// The text of its run.
pub const ORDINARY_TEXT: &str = r#"river-result 1
run 1960-07 2
month 1960-07
open lake 8000
evap lake 440
return gauge 0
flow r1 2500
flow r2 4600
flow r3 1500
flow r4 0
flow r5 1500
flow c1 3100
deliver dead 1000 1000
deliver fish 1500 1500
deliver canalco 3100 4000
deliver live 4460 9000
deliver city 0 400
out sea 1500
call canalco
in farm
call live
in upper
in lake
in weir
in farm
in gauge
call city
in upper
in lake
in weir
in farm
in gauge
called city live
close lake 5460
end
month 1960-08
open lake 5460
evap lake 273
return gauge 775
flow r1 1200
flow r2 3825
flow r3 725
flow r4 0
flow r5 1500
flow c1 3100
deliver dead 1000 1000
deliver fish 1500 1500
deliver canalco 3100 3800
deliver live 1562 9000
deliver city 0 400
out sea 1500
call canalco
in farm
call live
in upper
in lake
in weir
in farm
in gauge
call city
in upper
in lake
in weir
in farm
in gauge
called city live
close lake 2562
end
done 2
"#;
