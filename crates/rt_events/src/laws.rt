//! The numbers of the limits. The law stands on a function that does nothing: its clauses are the law.
ghost use Rattle.std.specs.Prelude.{◌≡◌};
ghost use Rattle.rt_base.specs.declared.limits.TheConstants.{MOST_COLUMNS, LONGEST_NAME, MOST_ROWS, LONGEST_MESSAGE, LONGEST_QUERY, LAST_NUMBER, LAST_MOMENT, MOST_SERVERS, MOST_CONTROLLERS, MOST_PARTITIONS, MOST_REPLICATION, MOST_INPUT, MOST_EVENTS, MOST_SENT, MOST_QUERIES, MOST_STORED};

/// What each limit is, as operators know it: what is beyond it is refused by the limit's name.
pub fn the_limits_are()
    // Of a cluster line, and of the bytes of a script.
    ensures input { MOST_INPUT ≡ 67_108_864 }
    ensures partitions { MOST_PARTITIONS ≡ 64 }
    ensures servers { MOST_SERVERS ≡ 16 }
    ensures controllers { MOST_CONTROLLERS ≡ 4 }
    ensures replication { MOST_REPLICATION ≡ 8 }
    // The milliseconds up to the end of the year 9999.
    ensures moment { LAST_MOMENT ≡ 253_402_300_799_999 }
    // Of an event: the bytes of its message, and what a run has room for.
    ensures message { LONGEST_MESSAGE ≡ 65_536 }
    ensures events { MOST_EVENTS ≡ 4_000_000 }
    ensures sent { MOST_SENT ≡ 1_073_741_824 }
    ensures queries { MOST_QUERIES ≡ 1_000 }
    ensures stored { MOST_STORED ≡ 67_108_864 }
    // Of a schema, a table, a file and a query's text.
    ensures columns { MOST_COLUMNS ≡ 256 }
    ensures names { LONGEST_NAME ≡ 128 }
    ensures rows { MOST_ROWS ≡ 1_000_000 }
    ensures texts { LONGEST_QUERY ≡ 65_536 }
    // The greatest number of a node or a partition: one below the last of 32 bits.
    ensures numbers { LAST_NUMBER ≡ 4_294_967_294 }
{}
