// The laws, each a call that does nothing.
ghost use Rattle.cap_quiver_laws.specs.Laws.{QuotientIsTable, QuotientIsOne, PathsJoin, IdealIsTwoSided, QuiverTableIsTable, QuiverTableIsOne};

/// The quotient of paths by a two-sided span is a valid table.
pub fn law_quotient_is_table()
    ensures { QuotientIsTable }
{}

/// Joining paths shorter than a bound is associative, with units.
pub fn law_paths_join()
    ensures { PathsJoin }
{}

/// The ideal of relations is two-sided.
pub fn law_ideal_is_two_sided()
    ensures { IdealIsTwoSided }
{}

/// The table of a quiver is valid.
pub fn law_quiver_table_is_table()
    ensures { QuiverTableIsTable }
{}

/// A quotient has one basis and one table.
pub fn law_quotient_is_one()
    ensures { QuotientIsOne }
{}

/// A quiver with relations has one table, and one list of basis paths.
pub fn law_quiver_table_is_one()
    ensures { QuiverTableIsOne }
{}
