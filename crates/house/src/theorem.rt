//! What holds of the fields of every file.
ghost use Rattle.house.specs.Holds.{GoodFilesHold};
ghost use Rattle.house.specs.Order.{Stands};

/// The fields follow one another without a gap, and a file has one verdict: good, or the report with the least byte.
pub fn format_stands()
    ensures { Stands }
{}

/// The names, values, records and text of a good file are those that stand in its bytes.
pub fn contents_stand()
    ensures { GoodFilesHold }
{}
