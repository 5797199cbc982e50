// The formulas of the MLX90640 datasheet, as definitions: nothing runs here. What the record and the tables promise is compared with them.

#![tactic(auto)]
