ghost use Rattle.rt_schema.specs.Schema.{IsSchema};

use rt_call_words::Stop;
use rt_schema::{Schema, SchemaRefused, read_schema};
use std::alloc::Global;

/// A schema that was read.
#[derive(Drop)]
pub struct KnownSchema {
    pub schema: Schema,
    ghost read: { IsSchema schema },
}

/// What lines about schemas and table settings leave to later ones.
pub struct Tables {
    /// The last schema that was read, and its text.
    pub(crate) schema: Option<KnownSchema>,
    pub(crate) schema_text: String,
    /// The text of the last table settings that were read, and the name of the table; both empty before.
    pub(crate) table_text: String,
    pub(crate) table: String,
}

// Written out: whoever drops tables calls this, and its proof needs nothing of the fields.
impl Drop for Tables {
    fn drop(self) {
        let Tables {
            schema: _,
            schema_text: _,
            table_text: _,
            table: _,
        } = self;
    }
}

impl Tables {
    /// Nothing was read yet.
    pub fn new(alloc: Global) -> Tables {
        Tables {
            schema: None,
            schema_text: String::new(alloc),
            table_text: String::new(alloc),
            table: String::new(alloc),
        }
    }

    /// The text of the last schema that was read.
    pub fn schema_text(&self) -> &str {
        self.schema_text.as_str()
    }

    /// The text of the last table settings that were read.
    pub fn table_text(&self) -> &str {
        self.table_text.as_str()
    }

    /// The schema of the lines that need one.
    pub fn schema(&self) -> Result<&KnownSchema, Stop> {
        match &self.schema {
            Some(known) => Ok(known),
            None => Err(Stop::Refused),
        }
    }

    /// The same schema, read once more.
    pub fn schema_again(&self, alloc: Global) -> Result<KnownSchema, Stop> {
        match read_schema(alloc, self.schema_text.as_str()) {
            Ok(schema) => Ok(KnownSchema { schema }),
            Err(SchemaRefused::Memory) => Err(Stop::Memory),
            Err(_) => Err(Stop::Refused),
        }
    }

    /// The table's name: `t` until a table is read.
    pub fn table(&self) -> &str {
        if self.table.is_empty() {
            "t"
        } else {
            self.table.as_str()
        }
    }
}
